// Laws about a drawing whose open calls are held to the records that a host lends (RULES 8, request 7): with as many as there are levels nothing changes, and with fewer only
// refusal 21 comes in. No code.

#![tactic(auto)]
