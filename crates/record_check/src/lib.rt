// The check of a record of side information: what its answers mean. Definitions and laws: no function stands here.
#![tactic(auto)]
