// The C library as an archive: every entry of `griffeljol`, exported.
#![tactic(auto)]

mod exports; // exports.rt: the entries
