// The ten marked plays and P5's listing (SPEC 9): two tables and a theorem about each. There is no code here.
#![tactic(auto)]
