// An area printed and fed to another, as mathematics: `specs/Carry.antt`.
#![tactic(auto)]
