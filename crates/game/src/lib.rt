// The game: arenas, strategies, winning and advice, and the source's own game. There is no code here.
#![tactic(auto)]
