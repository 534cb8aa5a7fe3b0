// Bit strings and their packing into bytes. Definitions and laws: no function stands here.
#![tactic(auto)]
