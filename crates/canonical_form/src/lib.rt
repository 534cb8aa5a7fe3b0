// The one form in which a frame's side information is written, and what its writer answers. Definitions and laws: no function stands here.
#![tactic(auto)]
