//! What `rbc --version` tells.

/// The version, the sum of the sources that the program is made of, which `tools/sources --write` writes here, and the sum
/// of the logic that proves them.
pub(crate) const VERSION: &str = "\
0.9.6
sources e947f103c76526661eedf2f6101eb33104e8fb38c2a868025fb02804719a2377
logic dac8208d650f15bf";
