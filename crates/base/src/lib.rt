// What every other crate may rest on, as definitions and laws: a count read as no more than its limit, lists, maps,
// scans, truth values, the bytes of a text and the first condition that holds. Nothing here knows what a guard does,
// and nothing here is code: a count is clamped by std's `min`, and a length is std's `len`.
#![tactic(auto)]
