// What is read of a frame's side information, that what is written comes back, and that what is read passes the check of records. Definitions and laws:
// no function stands here.
#![tactic(auto)]
