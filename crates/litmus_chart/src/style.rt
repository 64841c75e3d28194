//! How a space-time diagram looks: on a light page, on a dark one, and in print.

/// The styles, and the head of an arrow. A state is shown by its name too, never by its color alone.
pub const STYLE: &str = "<style>
svg{font:13px system-ui,sans-serif;background:#fff;color:#111}
text{fill:currentColor;paint-order:stroke;stroke:#fff;stroke-width:3px}
.row{font-family:ui-monospace,monospace;font-size:12px}
.name{font-weight:bold;font-size:15px;text-anchor:middle}
.state{font-weight:bold;font-size:12px}
.left{text-anchor:end}
.grid{stroke:#e4e4e4}
.life{stroke:#999}
.bar{fill:#f3c987;stroke:#555;stroke-width:.5}
.bar.I{fill:#e2e2e2}.bar.S{fill:#86c183}.bar.E{fill:#e9a05c}.bar.M{fill:#d9604f}
.bar.IS_D{fill:#bcd7ee}.bar.S_D{fill:#bcd7ee}
.req{stroke:#555}.fwd{stroke:#2463a8}.data{stroke:#ab1c30}.ack{stroke:#1c7a3a}.home{stroke:#7a4ea3}
.flight{stroke-dasharray:5 4}
.label{font-size:12px;text-anchor:middle}
.did{font-size:11px}
.wait{font-size:12px;font-style:italic}
.ring{fill:none;stroke:#c00;stroke-width:2.5}
@media (prefers-color-scheme:dark){
svg{background:#16181c;color:#eee}
text{stroke:#16181c}
.grid{stroke:#33373d}.life{stroke:#777}
.bar{fill:#a97b34}.bar.I{fill:#4a4d52}.bar.S{fill:#3d7c3b}.bar.E{fill:#a8602a}.bar.M{fill:#b03f30}
.bar.IS_D,.bar.S_D{fill:#3f658a}
.req{stroke:#bbb}.fwd{stroke:#7db0ea}.data{stroke:#f0808f}.ack{stroke:#77cf93}.home{stroke:#c3a0e6}
.ring{stroke:#ff7b72}
}
@media print{
svg{background:#fff;color:#000}
text{stroke:#fff}
.req,.fwd,.data,.ack,.home{stroke:#000}
}
</style>
<defs><marker id=\"head\" viewBox=\"0 0 10 10\" refX=\"9\" refY=\"5\" markerWidth=\"9\" markerHeight=\"9\" orient=\"auto\"><path d=\"M0 0L10 5L0 10z\" fill=\"context-stroke\"/></marker></defs>
";
