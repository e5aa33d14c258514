// What C links: each function of the crate `boundary` under its name, with its clauses. The header is bench/port/ad9959.h.
// Each stands twice, here and in `boundary`: no crate can stand on a static library, and a library's export is none.
#![tactic(auto)]

pub mod conversions;
pub mod serializer;
pub mod streams;
