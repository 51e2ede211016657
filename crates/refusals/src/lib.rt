// Each refusal exactly when, and what a refused call leaves. No code.
#![tactic(auto)]
