// Two records set end to end (SPEC 12): the winning states of the second, for any rule of play, and a file's verdict by them. There is no
// code here.
#![tactic(auto)]
