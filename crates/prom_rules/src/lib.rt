// PROM files: lines, records, files, the call, and a writer of such files; no code that runs.
#![tactic(auto)]
