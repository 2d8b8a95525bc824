// No code: what a holder keeps for a party, a draft and works, and what each call does to them (contract 7.3 to 7.11).
#![tactic(auto)]
