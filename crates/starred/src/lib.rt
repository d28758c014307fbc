// The starred figures of the scope: specs/Figures.antt has them as one table, proved by one lemma.
#![tactic(auto)]
