// No code: what is claimed of the calls `build` and `run` together, and document 01's starred samples.
#![tactic(auto)]
