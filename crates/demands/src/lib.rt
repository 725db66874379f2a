#![tactic(auto)]

// No code: the demands and the table of starred lines, stated and proved in specs/.
