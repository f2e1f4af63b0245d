// Laws about texts that are made of others: a text moved on, a body read alone, two texts joined, and two lists of transformations made one. Request 14 is among
// them; requests for a library beside the project and for dropped definitions stand on them. No code.

#![tactic(auto)]
