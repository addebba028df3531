// How a state or a table is found in words: the tests and decoders that the meaning of a call computes with. There is no code here.
//
// Nothing here need be believed, since two laws of crate `layout_laws` say what it comes to without it: `state_of w` is the state σ exactly
// if `IsState σ` and `encode σ` is w (`state-of-iff` of StateLaws), and `table_of w` is the table T exactly if `IsTable T` and `encode_table T`
// is w (`table-of-iff` of TableLaws). The test for a state agrees with its conditions (`is_state_lem` of `invariant`).
#![tactic(auto)]
