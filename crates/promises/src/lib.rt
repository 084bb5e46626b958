// No code: what holds of every desk reached from an opening.
#![tactic(auto)]
