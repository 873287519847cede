// What number tokens and number kinds are: theory alone. The calls of the kinds promise what is proved here.
#![tactic(auto)]
