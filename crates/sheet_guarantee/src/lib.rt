// What a sheet holds and says over every list of answers, and which values a kept sheet can have.
// There is no function here; what is proved is about the contracts of `sheet`.

#![tactic(auto)]
