// No function: laws that every proof may cite, which belong to no one part of the library, and the few words in which they are stated.
// A fact of the toolchain's library is cited from there and stands here only where a shorter form of it is used in many places.
#![tactic(auto)]
