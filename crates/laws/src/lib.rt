// What every step keeps true, whatever table, ring and entry it is given. It has no functions; what it speaks of is the step of `host`.
#![tactic(auto)]
