//! Worked examples of what is known of the stacks along code, and of tables in order. Nothing here is built into the product.
#![tactic(auto)]
