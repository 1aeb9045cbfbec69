// What is promised of each call by itself, told apart from the rules: which calls are refused, what an accepted one
// answers and leaves, and what becomes of images. There is no function here; what is proved is about the contracts of
// `controller`.

#![tactic(auto)]
