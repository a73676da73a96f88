// A step leaves a sound box sound; its records are valid, fit the tray, and are addressed as they should be.
// Laws over the definitions of boxes; no code.
#![tactic(auto)]
