// Formats whose other rules are judged where they stand, field by field from the front: what they answer, and that it is the fault at the least place.
#![tactic(auto)]
