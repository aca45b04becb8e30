// Lists, numbers and bits as every crate above uses them: the words in specs/, their laws in proofs/. It has no function of its own and
// knows nothing of tables or diagrams.
#![tactic(auto)]
