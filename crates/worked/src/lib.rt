// No function: specs/ has the list of the figures that documents 01 and 02 work by hand, further figures and calls of
// the reference model, proofs/ the theorems that prove them about the rules.

#![tactic(auto)]
