// What document 01 names, by the engine's own definitions: its listing, its instances, the impostors that the contracts
// exclude and the designs that lose hours. Pure mathematics, no code. It stands in specs/.
#![tactic(auto)]
