//! Worked examples of the rules, on programs that no source text has. Nothing here is built into the product.
#![tactic(auto)]
