// No code: small lines of the oracle's lists, each proved of the definitions of the calls `build` and `run`.
#![tactic(auto)]
