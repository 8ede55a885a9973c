// Laws of a block as it is written and read back, and of a list of entries: which tasks they say, and which tasks pass. The definitions stand in the specs of block. No functions.

#![tactic(auto)]
