// What the plain book's replies mean. No code: definitions and theorems.
#![tactic(auto)]
