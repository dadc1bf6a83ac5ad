//! Tests of canonical texts: what is shown of texts, and of what was shown. There is nothing here to call.
#![tactic(auto)]

#[cfg(test)]
mod shown;
