// What the steps that the rounds of the bit allocation end at are worth. Definitions and laws: no function stands here.
#![tactic(auto)]
