// The starred frames (docs/RULES.md, 'Checked frames'): one statement about the definitions of all layers (specs/Starred.antt) and its
// proof. There is no code here.
#![tactic(auto)]
