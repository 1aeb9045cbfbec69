// A lot: the sheet that is fed with the answers of a controller's accepted scans, over every list of calls.
// There is no function here; what is proved is about the contracts of `controller` and `sheet`.

#![tactic(auto)]
