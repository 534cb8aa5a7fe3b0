// What an accepted allocation comes to when its frame is sent. Definitions and laws: no function stands here.
#![tactic(auto)]
