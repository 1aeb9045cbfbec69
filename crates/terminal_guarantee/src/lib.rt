// What is promised of the terminal's lines: by themselves, in lists of calls, and of a reply that is sent back.
// There is no function here; what is proved is about the contracts of `terminal` and `controller`.

#![tactic(auto)]
