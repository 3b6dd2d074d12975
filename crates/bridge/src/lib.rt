// Laws that tie the tables of a link to the union; no code.
#![tactic(auto)]
