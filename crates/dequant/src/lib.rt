// Dequantize: samples that were recorded in coarse steps are moved toward what their neighbours predict, and
// never further from their step than half of it. Two forms: `dequantize` and `dequantize_cosparse`. The workspace and
// the number of samples stay two parameters: `Room n work` and `Holds n`, which the promises cite, take them one by
// one.
#![tactic(auto)]

pub mod cosparse;
mod lattice;
pub mod passes;
