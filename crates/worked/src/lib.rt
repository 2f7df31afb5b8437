// Worked exchanges and octets, computed: definitions and their statement alone (specs/Worked.antt).
#![tactic(auto)]
