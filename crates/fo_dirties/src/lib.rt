//! How many blocks calls leave to be written, counted over a request.
//!
//! No code: lemmas over `DirtiesIn`, `AddsDirty` and `Dirties` of `fo_ports`. A look, a file number and what adds nothing leave none; a put leaves
//! its block. What a call adds beside the blocks that it is given is added once, also where the next call puts into what this one gave.
#![tactic(auto)]
