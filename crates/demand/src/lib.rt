// Demand 3 (SPEC 5): what following the advice comes to, for any kind of play, and the play of this tool as the first kind. There is no
// code here.
#![tactic(auto)]
