// The three demands and the starred points of document 01, and the requests of document 02, stated in `specs/` and proved in `proofs/` by citing the layers' laws. There is no code here.
#![tactic(auto)]
