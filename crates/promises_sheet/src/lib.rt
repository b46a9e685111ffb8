// Definitions and theorems only: the sheet of the machine.
#![tactic(auto)]
