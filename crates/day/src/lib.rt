// The theorems of the whole day: what is true of any list of entries, however the outbox is read and released. It has no functions; what it
// speaks of is the step of `host`.
#![tactic(auto)]
