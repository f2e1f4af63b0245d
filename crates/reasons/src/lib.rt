// Laws about why a shape is here (RULES 20, request 11): where the shape with a count is found, what its net transformation is, and how the calls explain it. No code.

#![tactic(auto)]
