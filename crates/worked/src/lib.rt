// The paper's worked numbers and both sides of its sentences, as lists of cases that are proved by computing them. It has no functions: the
// cases are played on the step of `host`, and old tables go through `convert`.
#![tactic(auto)]
