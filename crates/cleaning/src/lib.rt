// A cleaning run: taking sources, resolving, writing. specs/ says what each answer is, and the one claim over two whole lists of calls.
#![tactic(auto)]
